mod calls;
mod doing;
mod filtered;
mod given;
mod runs;
mod slots;
