use mesa_record::{RecordError, decode};
use std::alloc::Global;
use std::test::Fail;

// Why the bytes that these digits spell are no record.
fn fault_of(alloc: Global, digits: &[u8]) -> Option<RecordError> {
    match hex::decode(alloc, digits) {
        Ok(bytes) => decode(alloc, &bytes).err(),
        Err(_) => None,
    }
}

#[test]
fn each_refusal_names_its_place(rt: HostRuntime) {
    let refusals: [(&[u8], RecordError); 64] = [
        // nothing
        (b"", RecordError::Truncated { at: 0 }),
        // no kind
        (b"00", RecordError::BadKind { at: 0 }),
        // no kind yet
        (b"10000000", RecordError::BadKind { at: 0 }),
        (b"11000000", RecordError::BadKind { at: 0 }),
        // a kind of the second edition alone, and a version of it
        (b"09", RecordError::Truncated { at: 1 }),
        (b"0900000001", RecordError::Truncated { at: 5 }),
        // a number of three bytes
        (b"01000000", RecordError::Truncated { at: 1 }),
        // a byte behind a record
        (b"010000000109", RecordError::Trailing { at: 5 }),
        (b"0100000001ff", RecordError::Trailing { at: 5 }),
        // a table's number cut short, a version behind it, and a byte behind an expiry of a table
        (b"0c00", RecordError::Truncated { at: 1 }),
        (b"0c0003000000", RecordError::Truncated { at: 3 }),
        (b"0c00030000000200", RecordError::Trailing { at: 7 }),
        // a recast's table and its epoch cut short, no key column, no value column, no flag, singletons cut short, and a byte behind it
        (b"0e00", RecordError::Truncated { at: 1 }),
        (b"0e0001000000", RecordError::Truncated { at: 3 }),
        (b"0e00010000000300", RecordError::BadField { at: 7 }),
        (b"0e00010000000301016b00", RecordError::BadField { at: 10 }),
        (
            b"0e00010000000301016b01017602",
            RecordError::BadKind { at: 13 },
        ),
        (
            b"0e00010000000301016b010176000000",
            RecordError::Truncated { at: 14 },
        ),
        (
            b"0e00010000000301016b010176000000000000",
            RecordError::Trailing { at: 18 },
        ),
        // a byte behind an expiry of all
        (b"070000000200", RecordError::Trailing { at: 5 }),
        // a name cut short
        (b"0203", RecordError::Truncated { at: 1 }),
        // a capital letter in a name
        (b"02015401", RecordError::BadField { at: 1 }),
        // no key column
        (b"02017400", RecordError::BadField { at: 3 }),
        // 17 key columns
        (b"02017411", RecordError::BadField { at: 3 }),
        // no type
        (b"02017401016b02", RecordError::BadKind { at: 6 }),
        // no aggregation
        (b"02017401016b0001017604", RecordError::BadKind { at: 10 }),
        // no change
        (b"04000004", RecordError::BadKind { at: 3 }),
        // a text default with a zero byte
        (b"040001030179010100", RecordError::BadField { at: 7 }),
        // a text default that is no UTF-8
        (b"0400010301790101ff", RecordError::BadField { at: 7 }),
        // a file without rows
        (
            b"050000000300010000000000000000010000000000000000000000006700000000000000000000000100088000000000000001000880000000000000010100000000000000050123456789abcdef0123456789abcdef0123456789abcdef0123456789abcdef00",
            RecordError::BadField { at: 29 },
        ),
        // a file without blocks
        (
            b"050000000300010000000000000000010000000000000000000000006700000000000000010000000000088000000000000001000880000000000000010100000000000000050123456789abcdef0123456789abcdef0123456789abcdef0123456789abcdef00",
            RecordError::BadField { at: 37 },
        ),
        // a table twice
        (
            b"050000000300020000000000000000010000000000000000000000006700000000000000010000000100088000000000000001000880000000000000010100000000000000050123456789abcdef0123456789abcdef0123456789abcdef0123456789abcdef00000000",
            RecordError::BadField { at: 104 },
        ),
        // nine views
        (
            b"050000000300010000000000000000010000000000000000000000006700000000000000010000000100088000000000000001000880000000000000010100000000000000050123456789abcdef0123456789abcdef0123456789abcdef0123456789abcdef09",
            RecordError::BadField { at: 102 },
        ),
        // 17 sum columns
        (
            b"050000000300010000000000000000010000000000000000000000006700000000000000010000000100088000000000000001000880000000000000010100000000000000050123456789abcdef0123456789abcdef0123456789abcdef0123456789abcdef0011",
            RecordError::BadField { at: 103 },
        ),
        // no format
        (
            b"0900000003000100000000000003",
            RecordError::BadKind { at: 13 },
        ),
        (
            b"0900000003000100000000000000",
            RecordError::BadKind { at: 13 },
        ),
        // no flag
        (b"06000002", RecordError::BadKind { at: 3 }),
        // a view twice
        (
            b"06000000000000000000000300000000010000010000000000000000000000006700000000000000010000000100088000000000000001000880000000000000010100000000000000050123456789abcdef0123456789abcdef0123456789abcdef0123456789abcdef02010000010000000000000000000000006700000000000000010000000100088000000000000001000880000000000000010100000000000000050123456789abcdef0123456789abcdef0123456789abcdef0123456789abcdef01",
            RecordError::BadField { at: 197 },
        ),
        // a key cut short
        (
            b"05000000030001000000000000000001000000000000000000000000670000000000000001000000010008",
            RecordError::Truncated { at: 41 },
        ),
        // a checkpoint cut short in each edition, and before its count of tables
        (b"08000000", RecordError::Truncated { at: 1 }),
        (b"0b000000", RecordError::Truncated { at: 1 }),
        (b"0d000000", RecordError::Truncated { at: 1 }),
        (b"0f000000", RecordError::Truncated { at: 1 }),
        // a table's first epoch cut short
        (
            b"0f000000010000000100000000000000010001017400000000000000",
            RecordError::Truncated { at: 25 },
        ),
        (
            b"0d000000010000199a000000000000000000",
            RecordError::Truncated { at: 17 },
        ),
        // a byte behind a checkpoint
        (
            b"0d000000010000199a0000000000000000000000",
            RecordError::Trailing { at: 19 },
        ),
        (
            b"08000000010000199a0000000000000000000000",
            RecordError::Trailing { at: 19 },
        ),
        // a table too few
        (
            b"0d000000010000000100000000000000010001",
            RecordError::Truncated { at: 19 },
        ),
        // a capital letter in a stated table's name
        (
            b"0d0000000100000001000000000000000100010154",
            RecordError::BadField { at: 19 },
        ),
        // an oldest version cut short, where there is a field for it
        (
            b"0d0000000100000001000000000000000100010174000000",
            RecordError::Truncated { at: 21 },
        ),
        (
            b"0b0000000100000001000000000000000100010174000000",
            RecordError::BadField { at: 21 },
        ),
        // a stated table without a key column
        (
            b"0d00000001000000010000000000000001000101740000000000",
            RecordError::BadField { at: 25 },
        ),
        // no change among those of a stated table
        (
            b"0d00000001000000010000000000000001000101740000000001016b0001017600000104",
            RecordError::BadKind { at: 35 },
        ),
        // nine stated views, and one without a key column
        (
            b"0d00000001000000010000000000000001000101740000000001016b0001017600000009",
            RecordError::BadField { at: 35 },
        ),
        (
            b"0d00000001000000010000000000000001000101740000000001016b0001017600000001017700",
            RecordError::BadField { at: 38 },
        ),
        // 17 totals of a stated table
        (
            b"0d00000001000000010000000000000001000101740000000001016b000101760000000011",
            RecordError::BadField { at: 36 },
        ),
        // no flag of a base, and none of its files
        (
            b"0d00000001000000010000000000000001000101740000000001016b00010176000000000002",
            RecordError::BadKind { at: 37 },
        ),
        (
            b"0d00000001000000010000000000000001000101740000000001016b00010176000000000001000000000000000002",
            RecordError::BadKind { at: 46 },
        ),
        // no format of a base, which the first edition has no field for
        (
            b"0b000000010000000100000000000000010001017401016b0001017600000000000100000000000000000103",
            RecordError::BadKind { at: 43 },
        ),
        (
            b"08000000010000000100000000000000010001017401016b0001017600000000000100000000000000000103",
            RecordError::Truncated { at: 43 },
        ),
        // four billion cumulatives, and four billion singletons, of which there is none
        (
            b"0d00000001000000010000000000000001000101740000000001016b00010176000000000000ffffffff",
            RecordError::Truncated { at: 42 },
        ),
        (
            b"0d00000001000000010000000000000001000101740000000001016b0001017600000000000000000000ffffffff",
            RecordError::Truncated { at: 46 },
        ),
        // no flag of a cumulative's files
        (
            b"0d00000001000000010000000000000001000101740000000001016b0001017600000000000000000001000000000000000002",
            RecordError::BadKind { at: 50 },
        ),
        // a byte behind the last table
        (
            b"0d00000001000000010000000000000001000101740000000001016b00010176000000000000000000000000000000",
            RecordError::Trailing { at: 46 },
        ),
    ];
    for (digits, fault) in &refusals {
        assert_eq!(rt; fault_of(rt.alloc(), digits), Some(*fault));
    }
}
