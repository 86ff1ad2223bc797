// One key for one bit, from the seed 17, as tests/model.py works it out: the root, and the signature of a text by the first bit of its hash.
pub const ROOT: &'static str = "a0bba8b2b0543401dfdf7a88d837b54d34575598fab6ab05270c26cc85354e60";

pub const SIGNED_0: &'static str = "key 0\n\
    parts eb86eeefaa60753e3796c02e6ee786ee0d6303b177030e288051dc8883dd1734\n\
    others b25cd5cd998d8054ae1e9e13601e83f0e43e7f3474a66165dad31262d50197b6\n\
    path";

pub const SIGNED_1: &'static str = "key 0\n\
    parts 37e04e78de539af322c81b6dbbe51d2d4c9f4e1aa9311b04b9c6351080a2b147\n\
    others 052ebd4f3cc692d1741c8e1a89b3766bed339fbb1143d0ed66f6502036db51ef\n\
    path";
