mod alike;
mod machines;
mod play;
mod programs;
mod runs;
mod schedules;
