// A question of every cell of a list, in list order: of any list whose rows have n, n − 1, … cells, and questions 4, 5 and 7.
#![tactic(auto)]

pub mod one_list;
pub mod walk;
