//! The number of a key, the mask of a number of partitions, and the partition that owns a key.
#![tactic(auto)]

ghost use Rattle.std.specs.Prelude.{◌≡◌, ℕ, ◌+◌, ◌*◌, ◌%◌, ◌^◌, ◌<◌, ◌≤◌, bit_and};
ghost use Rattle.apx_codec.specs.KeyNumber.{hash_of, mask_of, IsMask, number_owner, owner_of};

/// The greatest number of partitions that an operator may have.
pub const MOST_PARTITIONS: u8 = 8;

/// The number of a key, from its bytes. On ASCII text it is what Java's `String.hashCode` gives
/// (<https://docs.oracle.com/javase/8/docs/api/java/lang/String.html#hashCode-->), read without
/// sign.
pub fn hash(key: &[u8]) -> u32
    ensures { result ≡ hash_of key.now }
{
    let mut number: u32 = 0;
    for byte in key {
        number = number.wrapping_mul(31).wrapping_add(u32::from(*byte));
    }
    number
}

/// The mask of an operator with `n` partitions: the bits of a key's number that tell its class, as
/// Apex's partition keys have one.
pub fn mask(n: u8) -> u32
    requires low { 1 ≤ n }
    requires high { n ≤ 8 }
    ensures value { result ≡ mask_of n }
    ensures least { IsMask n result }
{
    match n {
        1 => 0,
        2 => 1,
        3 | 4 => 3,
        _ => 7,
    }
}

/// The number of the partition, from 0, that owns a key among `n` partitions.
pub fn owner(n: u8, key: &[u8]) -> u8
    requires low { 1 ≤ n }
    requires high { n ≤ 8 }
    ensures value { result ≡ owner_of n key.now }
    ensures within { result < n }
{
    owner_by_number(n, hash(key))
}

/// The number of the partition, from 0, that owns the keys with a number among `n` partitions.
pub fn owner_by_number(n: u8, number: u32) -> u8
    requires low { 1 ≤ n }
    requires high { n ≤ 8 }
    ensures value { result ≡ number_owner n number }
    ensures within { result < n }
{
    let class = number & mask(n);
    (class % u32::from(n)) as u8
}

#[cfg(test)]
mod tests {
    use super::*;

    #[test]
    fn numbers_are_those_of_java(rt: HostRuntime) {
        for (key, want) in [
            ("", 0),
            ("a", 97),
            ("the", 114801),
            ("zzzzzz", 3_609_181_632),
        ] {
            assert_eq!(rt; hash(key.as_bytes()), want, "at {key}");
        }
    }

    #[test]
    fn masks_are_the_least_that_reach(rt: HostRuntime) {
        for (n, want) in [(1, 0), (2, 1), (3, 3), (4, 3), (5, 7), (8, 7)] {
            assert_eq!(rt; mask(n), want, "at {n}");
        }
    }

    #[test]
    fn classes_belong_to_partitions(rt: HostRuntime) {
        for (n, key, want) in [
            (1, "a", 0),
            (3, "a", 1),
            (3, "b", 2),
            (3, "c", 0),
            (3, "d", 0),
        ] {
            assert_eq!(rt; owner(n, key.as_bytes()), want, "at {key}");
            assert_eq!(rt; owner_by_number(n, hash(key.as_bytes())), want, "at {key}");
        }
    }

    #[test]
    fn bytes_above_127_count_as_they_are(rt: HostRuntime) {
        assert_eq!(rt; hash("é".as_bytes()), 6214);
        for (n, first, second) in [
            (1, 0, 0),
            (2, 1, 0),
            (3, 0, 2),
            (4, 3, 2),
            (5, 2, 1),
            (6, 1, 0),
            (7, 0, 6),
            (8, 7, 6),
        ] {
            assert_eq!(rt; owner(n, &[255]), first, "at {n}");
            assert_eq!(rt; owner(n, "é".as_bytes()), second, "at {n}");
        }
    }
}
