// The examples of FIPS 180-4 for SHA-256, four messages side by side.
use crate::expected::expect_same;
use mesa_sha256::digests;

// A message of no bytes, one of three, and two that take two blocks with their padding.
static EXAMPLES: [(&[u8], [u8; 32]); 4] = [
    (
        b"",
        [
            227, 176, 196, 66, 152, 252, 28, 20, 154, 251, 244, 200, 153, 111, 185, 36, 39, 174,
            65, 228, 100, 155, 147, 76, 164, 149, 153, 27, 120, 82, 184, 85,
        ],
    ),
    (
        b"abc",
        [
            186, 120, 22, 191, 143, 1, 207, 234, 65, 65, 64, 222, 93, 174, 34, 35, 176, 3, 97, 163,
            150, 23, 122, 156, 180, 16, 255, 97, 242, 0, 21, 173,
        ],
    ),
    (
        b"abcdbcdecdefdefgefghfghighijhijkijkljklmklmnlmnomnopnopq",
        [
            36, 141, 106, 97, 210, 6, 56, 184, 229, 192, 38, 147, 12, 62, 96, 57, 163, 60, 228, 89,
            100, 255, 33, 103, 246, 236, 237, 212, 25, 219, 6, 193,
        ],
    ),
    (
        b"abcdefghbcdefghicdefghijdefghijkefghijklfghijklmghijklmnhijklmnoijklmnopjklmnopqklmnopqrlmnopqrsmnopqrstnopqrstu",
        [
            207, 91, 22, 167, 120, 175, 131, 128, 3, 108, 229, 158, 123, 4, 146, 55, 11, 36, 155,
            17, 232, 240, 122, 81, 175, 172, 69, 3, 122, 254, 233, 209,
        ],
    ),
];

// Each example in each lane.
#[test]
fn digests_the_examples_side_by_side(rt: HostRuntime) {
    for first in 0..4 {
        let (a, one) = EXAMPLES[first];
        let (b, two) = EXAMPLES[(first + 1) % 4];
        let (c, three) = EXAMPLES[(first + 2) % 4];
        let (d, four) = EXAMPLES[(first + 3) % 4];
        let found = digests(rt.alloc(), a, b, c, d).expect(&rt, "memory");
        expect_same(&rt, &found.a, &one, &first);
        expect_same(&rt, &found.b, &two, &first);
        expect_same(&rt, &found.c, &three, &first);
        expect_same(&rt, &found.d, &four, &first);
    }
}
