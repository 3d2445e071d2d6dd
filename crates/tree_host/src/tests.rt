// The host tree on real folders, and over a file system that records its calls.
mod answers;
mod calls;
mod recorded;
mod steps;
