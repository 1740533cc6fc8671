// The entry points of the crate `probe`, under names that the C of tests and the benchmark calls. No product has them.
#![tactic(auto)]

ghost use Rattle.std.specs.Prelude.{◌≡◌, ◌∷◌, ◌≤◌};
ghost use Rattle.lists.specs.Stored.{Put};
ghost use Rattle.model.specs.Questions.{first_no};
ghost use Rattle.model.specs.Calls.{reply_question, image_questions};
ghost use Rattle.plan_model.specs.Output.{plan_output};
ghost use Rattle.plan_text.specs.Parsed.{parsed as parsed_of};
ghost use Rattle.probe.specs.Recode.{Recoded};
ghost use Rattle.probe.specs.Rounds.{number_after};

#[unsafe(no_mangle)]
pub extern "C" fn probe_number(image: &[u8], reply: &[u8]) -> u32
    ensures { result ≡ first_no (reply_question reply.now ∷ image_questions image.now) }
{
    probe::images::probe_number(image, reply)
}

#[unsafe(no_mangle)]
pub extern "C" fn probe_recode(image: &mut [u8]) -> u32
    ensures { Recoded image.old result image.new }
{
    probe::images::probe_recode(image)
}

#[unsafe(no_mangle)]
pub extern "C" fn plan_probe_text(input: &[u8], out: &mut [u8; 1024]) -> usize
    ensures put { Put out.old 0 (plan_output input.now) result out.new }
    ensures within { result ≤ 1024 }
{
    probe::plans::plan_probe_text(input, out)
}

#[unsafe(no_mangle)]
pub extern "C" fn plan_probe_rounds(input: &[u8], rounds: u32) -> u32
    ensures { result ≡ number_after rounds (parsed_of input.now) }
{
    probe::plans::plan_probe_rounds(input, rounds)
}
