//! Laws without code: lists, their items and their order, sums, tests and what they tell. Each is
//! general, and stands here once; what the standard library has isn't here. There are no tests.
#![tactic(auto)]
