/// How many members all sets have, and a checksum over the size of each and its members, in order: FNV-1a with a whole number in
/// place of a byte. (Glenn Fowler, Landon Curt Noll, Kiem-Phong Vo, "The FNV Non-Cryptographic Hash Algorithm".)
#[derive(Clone, Copy)]
pub(crate) struct Tally {
    pub(crate) members: u64,
    pub(crate) checksum: u64,
}

const START: u64 = 0xcbf2_9ce4_8422_2325;

const PRIME: u64 = 0x100_0000_01b3;

fn mixed(checksum: u64, number: u64) -> u64 {
    (checksum ^ number).wrapping_mul(PRIME)
}

fn with_set(sum: Tally, set: &[u32]) -> Tally {
    let mut checksum = mixed(sum.checksum, set.len() as u64);
    for member in set {
        checksum = mixed(checksum, *member as u64);
    }
    Tally {
        members: sum.members.wrapping_add(set.len() as u64),
        checksum,
    }
}

pub(crate) fn tally_of(sets: &[Vec<u32>]) -> Tally {
    let mut sum = Tally {
        members: 0,
        checksum: START,
    };
    for set in sets {
        sum = with_set(sum, set);
    }
    sum
}
