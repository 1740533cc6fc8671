// No code: a use of every claim. A statement that says less than it should is proved as well as the right one, and is easily read over; so each field of
// `Claims` is applied here to a definite case, and each of its conclusions is taken from it, in figures. A conclusion dropped, a premise added or a table
// shortened is then refused here, although the statement and its proof agree. For an ⇔ both ways are taken; what is said of every list of calls is taken at
// 2 stations and at 8. Demand 3 is also computed for definite lists, without its proof.
#![tactic(auto)]
