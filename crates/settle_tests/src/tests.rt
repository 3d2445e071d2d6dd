// Settlements on a disk in memory.
mod cases;
mod choosing;
mod nine_pairs;
mod refusals;
mod running;
mod settling;
