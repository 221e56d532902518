mod checks;
mod claims;
mod moves;
mod runs;
mod schedules;
mod traps;
