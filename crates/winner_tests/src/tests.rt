// The winners of small worlds, and what they cost.
mod plain;
mod reports;
mod rows;
mod times;
mod worlds;
