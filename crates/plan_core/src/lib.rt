// Plan in code: the task set as plain numbers, the response iteration over them, and the entry over a lent list of task records.
#![tactic(auto)]

pub mod refusal; // why plan declines
pub mod costs; // a task's costs at the first stations
pub mod table; // the task set as plain numbers
pub mod response; // the response of a task
pub mod figures; // the figures of every task
pub mod records; // figures into a task record
pub mod by_value; // plan's questions and figures, over plain numbers
pub mod lent; // plan's entry, over a lent list of records
