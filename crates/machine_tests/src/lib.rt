//! Programs run on the plain machine, what is read of it on the way, and their entries checked by another; and programs run on the coherent machine
//! under schedules that a simulator wouldn't choose, whose entries the plain machine checks. The two share nothing but the instruction table.
#![tactic(auto)]

#[cfg(test)]
mod tests;
