//! Test vectors that FNV's authors publish, and groups worked out from them.
use name_hash::{fnv1a, group_of};

#[test]
fn published_vectors(rt: HostRuntime) {
    let vectors: [(&[u8], u64); 8] = [
        (b"", 0xcbf29ce484222325),
        (b"a", 0xaf63dc4c8601ec8c),
        (b"b", 0xaf63df4c8601f1a5),
        (b"foo", 0xdcb27518fed9d577),
        (b"foob", 0xdd120e790c2512af),
        (b"fooba", 0xcac165afa2fef40a),
        (b"foobar", 0x85944171f73967e8),
        (b"\x00", 0xaf63bd4c8601b7df),
    ];
    for (bytes, hash) in vectors {
        assert_eq!(rt; fnv1a(bytes), hash, "of {} bytes", bytes.len());
    }
    assert_eq!(rt; group_of(b"a", 4), 0);
    assert_eq!(rt; group_of(b"foobar", 16), 8);
    assert_eq!(rt; group_of(b"foobar", 1), 0);
}
