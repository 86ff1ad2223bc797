// Tests of the store in a file: files of the system, one that fails, and runs of the program in files.
#![tactic(auto)]

#[cfg(test)]
mod faulty;
#[cfg(test)]
mod folder;
#[cfg(test)]
mod running;
#[cfg(test)]
mod system;
