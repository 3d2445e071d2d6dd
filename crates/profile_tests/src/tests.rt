// Profiles as texts: their faults, what is read and printed, edits, and the time that it takes.
mod edits;
mod faults;
mod profiles;
mod times;
mod values;
