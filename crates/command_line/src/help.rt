// What `kachumpe --help` prints: all of the program on one screen.

pub(crate) const HELP: &str = "\
kachumpe: signatures by one-time keys, and a count of the keys that were used

  kachumpe              reads lines; the store is in memory, gone at the end
  kachumpe FILE         reads lines; the store is in FILE, and stays there
  kachumpe --new FILE   makes FILE with a new store, if FILE is not there
  kachumpe --help       prints this

A line, and what is printed for it:
  levels L bits N seed S   nothing: 2^L keys for N bits, all from the seed S
  root                     the root of their tree, in sixteens
  sign TEXT                key, parts, others, path: a signature; cut; all given
  look ROOT TEXT           and a signature's four lines: accepted or no
  state, slot              the store; the slot of it that counts
  power K                  nothing: power for K writes at the next sign
  store A B C D            nothing: another store, in memory alone
A refusal is a number and its place: 1 too many levels, 2 no sound store, 3 a
next key above 2^L, 4 bits not from 1 to 256, 5 a line that cannot be read.

FILE has 16 bytes and counts the keys of one seed. A key is printed once its
count and check are on the disk; where that fails: cut, and no more keys then.
FILE.lock is there while a run has FILE; one that was killed leaves it: remove
it once no run has FILE. Status 1: something failed, standard error says what.
";
