// The text that the plan program prints, into a lent buffer. Each function prints one text of plan_model's `Output` after the text so far. It asks for
// exactly the room that its text takes; proofs/Room.antt says how much is always enough.
ghost use Rattle.text.specs.Printed.{Printed, Room};
ghost use Rattle.plan_model.specs.Output.{verdict_end, field, task_line, task_lines, table, refusal};

use plan_model::{Task, Verdict};
use text::Text;

// A figure and a space.
fn put_field(text: &mut Text, v: u64)
    requires { Room text.old (field v) }
    ensures { Printed text.old (field v) text.new }
{
    text.decimal(v);
    text.byte(b' ');
}

// The word of a verdict, and the line feed. Ruled out: the words exchanged.
fn put_verdict(text: &mut Text, verdict: Verdict)
    requires { Room text.old (verdict_end verdict) }
    ensures { Printed text.old (verdict_end verdict) text.new }
{
    match verdict {
        Verdict::OnTime => text.bytes(b"on-time\n"),
        Verdict::Late => text.bytes(b"late\n"),
    }
}

// The line of the task with the number k. Ruled out: the response where the base stands.
fn put_line(text: &mut Text, k: u64, t: &Task)
    requires { Room text.old (task_line k t.now) }
    ensures { Printed text.old (task_line k t.now) text.new }
{
    put_field(text, k);
    put_field(text, u64::from(t.base));
    put_field(text, t.response);
    put_verdict(text, t.verdict);
}

// A line for each task. Ruled out: numbers from 0.
fn put_lines(text: &mut Text, tasks: &[Task])
    requires { Room text.old (task_lines tasks.now) }
    ensures { Printed text.old (task_lines tasks.now) text.new }
{
    for (i, t) in tasks.iter().enumerate() {
        put_line(text, i as u64 + 1, t);
    }
}

// The whole table. Ruled out: a heading that no line feed ends; the heading alone.
pub fn put_table(text: &mut Text, tasks: &[Task])
    requires { Room text.old (table tasks.now) }
    ensures { Printed text.old (table tasks.now) text.new }
{
    text.bytes(b"task base response verdict\n");
    put_lines(text, tasks);
}

// The line of a decline. Ruled out: a colon for the space; a space for the line feed.
pub fn put_refusal(text: &mut Text, number: u32)
    requires { Room text.old (refusal number) }
    ensures { Printed text.old (refusal number) text.new }
{
    text.figure(b"refused ", u64::from(number));
    text.byte(b'\n');
}
