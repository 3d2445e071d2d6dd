// The line of each refusal, the lines of small lists, and those of totals.
mod lists;
mod refusals;
mod totals;
mod values;
