// Plans of deployments on a disk in memory.
mod cases;
mod deploying;
mod looks;
mod pairs;
mod refusals;
mod running;
