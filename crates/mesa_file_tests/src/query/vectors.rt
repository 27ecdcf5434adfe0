// Files of rows, spelled by their format and not by the code that is tested.
use mesa_key::Format;
use std::alloc::{AllocError, Global};
use std::process::Abort;

/// Which blocks stand before a file's digits.
#[derive(Clone, Copy)]
pub enum Blocks {
    None,
    /// Two blocks of 1,024 and 1 texts: sixteen letters `a`, and four digits from 0000 on.
    Texts,
    /// Four blocks of 1,024 pairs of ints: 0 and 1, each with 0 to 2047.
    Pairs,
}

/// A file, and what is recorded of it.
pub struct Vector {
    pub id: u64,
    pub format: Format,
    pub made: Blocks,
    /// What stands behind these blocks, in digits.
    pub digits: &'static str,
    pub rows: u64,
    pub blocks: u32,
    /// Its greatest key, in digits.
    pub last: &'static str,
    /// The SHA-256 of its tail.
    pub digest: [u8; 32],
}

// The places of the files.
pub const TEXTS: usize = 0;

pub const PAIRS: usize = 1;

pub const OLDER: usize = 2;

pub const NEWER: usize = 3;

pub const BEFORE: usize = 4;

pub const OWN: usize = 5;

pub const MOST: usize = 6;

pub const MORE: usize = 7;

pub const AGAIN: usize = 8;

pub const OTHER: usize = 9;

pub const APART: usize = 10;

pub static VECTORS: [Vector; 11] = [
    // 1,025 keys of sixteen letters `a` and four digits from 0000 on, each with the value 1; here stands the tail
    Vector {
        id: 1,
        format: Format::One,
        made: Blocks::Texts,
        digits: "61616161616161616161616161616161000000000000000000007403f25a6e2297eff75d89ab88e84b9cd11f85ab3dc684891394736edd41d47e80d261616161616161616161616161616161000000000000740300000020154509220e85ef9e55f7d89ad2c001c8e77a741a7966f88a9849f3c86dc17962010000000000000004010000000201014d455341444c5431",
        rows: 1025,
        blocks: 2,
        last: "616161616161616161616161616161613130323400",
        digest: [
            48, 151, 83, 224, 191, 34, 201, 2, 124, 159, 24, 234, 29, 70, 74, 113, 145, 81, 88,
            101, 237, 7, 94, 142, 113, 238, 133, 242, 214, 228, 22, 89,
        ],
    },
    // The keys of 0 and 1, each with 0 to 2047, and the value 1; here stands the tail
    Vector {
        id: 1,
        format: Format::One,
        made: Blocks::Pairs,
        digits: "80000000000000008000000000000000000000000000000000006003e2c40b4d1fb023b160c8aabbebe4c7a81776bc2e569d6db2fc39464e744b9dbb800000000000000080000000000004000000000000006003000060038b11859c376d3b823d387b8e663687079ac3f92007d862f646d2e80f9bcf546580000000000000018000000000000000000000000000c006000060030d4f04294cd7f6679b83d0bb07f9538d6040d7d30047cf91be52a9e239e73cc9800000000000000180000000000004000000000000012009000060033aab7bd2ca8cf4b7e0bc6e3b07aed385eab4c4c9342f348a9d095dcf0dac4bdf00000000000000000010000000000402014d455341444c5431",
        rows: 4096,
        blocks: 4,
        last: "800000000000000180000000000007ff",
        digest: [
            32, 120, 156, 253, 60, 48, 33, 128, 59, 192, 48, 189, 162, 91, 195, 8, 149, 88, 186,
            212, 212, 105, 143, 195, 145, 2, 197, 95, 155, 5, 25, 94,
        ],
    },
    // The rows 1,1,10 and 2,2,20
    Vector {
        id: 1,
        format: Format::One,
        made: Blocks::None,
        digits: "0000028000000000000001800000000000000280000000000000018000000000000002000000000000000a000000000000001480000000000000018000000000000001000000000000000000000033b32df1f011efb57a7dfda143bc4282da9ec67fde2a2a8fbd0ec3b36605f69e9700000000000000000000020000000102014d455341444c5431",
        rows: 2,
        blocks: 1,
        last: "80000000000000028000000000000002",
        digest: [
            244, 168, 240, 72, 150, 52, 13, 15, 110, 33, 11, 11, 4, 208, 208, 198, 215, 69, 34,
            115, 226, 54, 164, 110, 123, 220, 24, 225, 215, 14, 198, 27,
        ],
    },
    // The rows 2,2,5 and 3,3,30
    Vector {
        id: 2,
        format: Format::One,
        made: Blocks::None,
        digits: "00000280000000000000028000000000000003800000000000000280000000000000030000000000000005000000000000001e80000000000000028000000000000002000000000000000000000033c5af128e6bfbb654e3d3dc427ce08dcb9e2192169008d881ffa980e9af9e46b600000000000000000000020000000102014d455341444c5431",
        rows: 2,
        blocks: 1,
        last: "80000000000000038000000000000003",
        digest: [
            202, 161, 251, 201, 251, 153, 164, 121, 138, 192, 254, 78, 108, 21, 167, 61, 230, 254,
            159, 75, 175, 204, 165, 136, 26, 78, 209, 30, 74, 244, 38, 222,
        ],
    },
    // The rows 1,1,5 and 1,2,7
    Vector {
        id: 1,
        format: Format::One,
        made: Blocks::None,
        digits: "000002800000000000000180000000000000018000000000000001800000000000000200000000000000050000000000000007800000000000000180000000000000010000000000000000000000338b7ef92c47b988d616eb3fc78ff47ee4229a290991740fcb75cf51d07ad9654700000000000000000000020000000102014d455341444c5431",
        rows: 2,
        blocks: 1,
        last: "80000000000000018000000000000002",
        digest: [
            12, 95, 81, 253, 44, 62, 203, 249, 23, 122, 153, 196, 233, 246, 9, 1, 109, 44, 10, 148,
            142, 175, 56, 179, 251, 208, 208, 252, 124, 102, 159, 118,
        ],
    },
    // The row 1,1 of a view
    Vector {
        id: 2,
        format: Format::One,
        made: Blocks::None,
        digits: "00000180000000000000010000000000000001800000000000000100000000000000000000000000000000000000132bee33e5b5a51ff0a91c2b7c9c3c88470a6db2dc7da8963c63365169b5bd4305000000000000000000010000000101014d455341444c5431",
        rows: 1,
        blocks: 1,
        last: "8000000000000001",
        digest: [
            50, 2, 7, 208, 237, 45, 102, 48, 169, 158, 154, 182, 65, 158, 25, 63, 89, 21, 53, 93,
            123, 16, 156, 202, 21, 128, 79, 151, 196, 99, 117, 240,
        ],
    },
    // The row 1,1 with the greatest amount
    Vector {
        id: 1,
        format: Format::Two,
        made: Blocks::None,
        digits: "000001800000000000000180000000000000017fffffffffffffffffffffffffffffff8000000000000001800000000000000100000000000000000000002330b5681c2a421f30a8dbeb3c74f31b1d7f1d3fa8cb4070c6fcccac256ed2376e00000000000000000000010000000102014d455341444c5432",
        rows: 1,
        blocks: 1,
        last: "80000000000000018000000000000001",
        digest: [
            237, 100, 147, 132, 199, 7, 193, 83, 94, 238, 233, 223, 51, 27, 174, 146, 206, 254,
            110, 58, 58, 215, 44, 253, 166, 130, 184, 111, 208, 94, 42, 105,
        ],
    },
    // The row 1,1,1
    Vector {
        id: 2,
        format: Format::Two,
        made: Blocks::None,
        digits: "00000180000000000000018000000000000001000000000000000000000000000000018000000000000001800000000000000100000000000000000000002397748963984da746bc432b96827e2c7cdd63a966a0818cce9921285fdb4eb2dd00000000000000000000010000000102014d455341444c5432",
        rows: 1,
        blocks: 1,
        last: "80000000000000018000000000000001",
        digest: [
            97, 6, 155, 242, 54, 15, 216, 121, 125, 94, 59, 2, 26, 239, 227, 162, 244, 143, 145,
            216, 71, 213, 173, 183, 67, 185, 109, 99, 51, 164, 112, 32,
        ],
    },
    // The row 1,1,5
    Vector {
        id: 3,
        format: Format::Two,
        made: Blocks::None,
        digits: "000001800000000000000180000000000000010000000000000000000000000000000580000000000000018000000000000001000000000000000000000023854c58af5f344b6c568220c9a6f549083c3049a295bf950bd63d8297ee7cf1ed00000000000000000000010000000102014d455341444c5432",
        rows: 1,
        blocks: 1,
        last: "80000000000000018000000000000001",
        digest: [
            76, 104, 192, 174, 221, 152, 151, 128, 150, 255, 184, 246, 244, 19, 14, 243, 7, 226,
            136, 220, 207, 249, 56, 131, 63, 27, 237, 147, 244, 133, 68, 192,
        ],
    },
    // The row 1,2,5
    Vector {
        id: 3,
        format: Format::Two,
        made: Blocks::None,
        digits: "000001800000000000000180000000000000020000000000000000000000000000000580000000000000018000000000000002000000000000000000000023119924a23ed3c9d267f62582f23ded493748f072431559da8e8517e95c7e2f1300000000000000000000010000000102014d455341444c5432",
        rows: 1,
        blocks: 1,
        last: "80000000000000018000000000000002",
        digest: [
            68, 148, 114, 27, 57, 164, 255, 202, 92, 231, 209, 97, 148, 189, 58, 70, 74, 73, 113,
            125, 159, 145, 210, 85, 226, 198, 100, 114, 166, 206, 64, 52,
        ],
    },
    // The row 2,1,5
    Vector {
        id: 3,
        format: Format::Two,
        made: Blocks::None,
        digits: "0000018000000000000002800000000000000100000000000000000000000000000005800000000000000280000000000000010000000000000000000000237cbf04fa19b921abc6483f751792a4b30ed377249efb67bd3424386d300d5ae900000000000000000000010000000102014d455341444c5432",
        rows: 1,
        blocks: 1,
        last: "80000000000000028000000000000001",
        digest: [
            134, 70, 106, 56, 12, 50, 3, 141, 151, 140, 228, 122, 34, 239, 212, 216, 167, 11, 89,
            220, 195, 207, 253, 68, 100, 142, 241, 94, 143, 194, 132, 254,
        ],
    },
];

// Sixteen letters and four digits.
fn text(i: u16) -> [u8; 20] {
    let mut text = [b'a'; 20];
    text[16] = b'0' + (i / 1000 % 10) as u8;
    text[17] = b'0' + (i / 100 % 10) as u8;
    text[18] = b'0' + (i / 10 % 10) as u8;
    text[19] = b'0' + (i % 10) as u8;
    text
}

// The bytes of a number that isn't negative.
fn int(i: u16) -> [u8; 8] {
    ((1u64 << 63) + i as u64).to_be_bytes()
}

// A block's values, each of which is 1.
fn put_ones(bytes: &mut Vec<u8>, count: u16) -> Result<(), AllocError> {
    for _ in 0..count {
        bytes.extend_from_slice(&[0, 0, 0, 0, 0, 0, 0, 1])?;
    }
    Ok(())
}

// The block of the texts from one on.
fn put_texts(bytes: &mut Vec<u8>, first: u16, count: u16) -> Result<(), AllocError> {
    bytes.push(0)?;
    bytes.extend_from_slice(&count.to_be_bytes())?;
    for _ in 0..count {
        bytes.push(20)?;
    }
    for i in 0..count {
        bytes.extend_from_slice(&text(first.saturating_add(i)))?;
    }
    put_ones(bytes, count)
}

// The block of 1,024 pairs of a number and those from one on.
fn put_pairs(bytes: &mut Vec<u8>, a: u16, first: u16) -> Result<(), AllocError> {
    bytes.push(0)?;
    bytes.extend_from_slice(&1024u16.to_be_bytes())?;
    for _ in 0..1024_u16 {
        bytes.extend_from_slice(&int(a))?;
    }
    for i in 0..1024_u16 {
        bytes.extend_from_slice(&int(first.saturating_add(i)))?;
    }
    put_ones(bytes, 1024)
}

fn put_blocks(bytes: &mut Vec<u8>, made: Blocks) -> Result<(), AllocError> {
    match made {
        Blocks::None => Ok(()),
        Blocks::Texts => {
            put_texts(bytes, 0, 1024)?;
            put_texts(bytes, 1024, 1)
        }
        Blocks::Pairs => {
            put_pairs(bytes, 0, 0)?;
            put_pairs(bytes, 0, 1024)?;
            put_pairs(bytes, 1, 0)?;
            put_pairs(bytes, 1, 1024)
        }
    }
}

/// The bytes that digits spell.
pub fn spelled(rt: &impl Abort, alloc: Global, digits: &str) -> Vec<u8> {
    hex::decode(alloc, digits.as_bytes()).expect(rt, "digits")
}

/// A file's bytes.
pub fn bytes_of(rt: &impl Abort, alloc: Global, vector: &Vector) -> Vec<u8> {
    let digits = spelled(rt, alloc, vector.digits);
    let mut bytes = Vec::new(alloc);
    put_blocks(&mut bytes, vector.made).expect(rt, "blocks");
    bytes.extend_from_slice(&digits).expect(rt, "bytes");
    bytes
}
