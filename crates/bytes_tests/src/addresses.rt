use branch_address::{Address, Sha256Address, WeakAddress};

// Numbers of letters `a`, with the SHA-256 of each such text as the tool sha256sum prints it.
const OF_LETTERS: [(usize, &[u8]); 6] = [
    (
        55,
        b"9f4390f8d30c2dd92ec9f095b65e2b9ae9b0a925a5258e241c9f1e910f734318",
    ),
    (
        56,
        b"b35439a4ac6f0948b6d6f9e3c6af0f5f590ce20f1bde7090ef7970686ec6738a",
    ),
    (
        63,
        b"7d3e74a05d7db15bce4ad9ec0658ea98e3f06eeecf16b4c6fff2da457ddc2f34",
    ),
    (
        64,
        b"ffe054fe7ae0cb6dc65c3af9b61d5209f439851db43d0ba5997337df154668eb",
    ),
    (
        119,
        b"31eba51c313a5c08226adf18d4a359cfdfd8d2e816b13f4af952f7ea6584dcfb",
    ),
    (
        1_000_000,
        b"cdc76e5c9914fb9281a1c7e284d73e67f1809a48a497200e046d39ccc7112cd0",
    ),
];

const OF_NOTHING: &[u8] = b"e3b0c44298fc1c149afbf4c8996fb92427ae41e4649b934ca495991b7852b855";

const OF_ABC: &[u8] = b"ba7816bf8f01cfea414140de5dae2223b00361a396177a9cb410ff61f20015ad";

const DIGITS: &[u8; 16] = b"0123456789abcdef";

// Whether this text spells the address in hexadecimal digits.
fn spells(text: &[u8], address: &[u8; 32]) -> bool {
    let high = address.iter().map(|byte| DIGITS[(*byte / 16) as usize]);
    let low = address.iter().map(|byte| DIGITS[(*byte % 16) as usize]);
    text.len() == 64
        && high.eq(text.iter().copied().step_by(2))
        && low.eq(text.iter().copied().skip(1).step_by(2))
}

// The address, through the bound alone.
fn address_of<A: Address>(bytes: &[u8]) -> [u8; 32] {
    A::of(bytes)
}

#[test]
fn texts_have_their_sha_256(rt: HostRuntime) {
    assert!(rt; spells(OF_NOTHING, &address_of::<Sha256Address>(b"")));
    assert!(rt; spells(OF_ABC, &address_of::<Sha256Address>(b"abc")));
    for (count, text) in OF_LETTERS {
        let letters = vec![in rt.alloc(); b'a'; count].expect(&rt, "letters");
        assert!(rt;
            spells(text, &address_of::<Sha256Address>(&letters)),
            "{count}"
        );
    }
}

#[test]
fn a_weak_address_is_the_length(rt: HostRuntime) {
    for (count, last) in [
        (0, 0),
        (146, 0x92),
        (129, 0x81),
        (255, 255),
        (256, 0),
        (300, 44),
    ] {
        let letters = vec![in rt.alloc(); b'a'; count].expect(&rt, "letters");
        let mut want = [0; 32];
        want[31] = last;
        assert!(rt; address_of::<WeakAddress>(&letters) == want, "{count}");
    }
}
