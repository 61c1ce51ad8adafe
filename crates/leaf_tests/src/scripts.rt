//! Whole scripts, worked out by hand from the rules of the generator.
use load_gen::load_script;

#[test]
fn worked_scripts(rt: HostRuntime) {
    let scripts: [(u32, u64, &str); 6] = [
        (0, 7, ""),
        (1, 0, "op 8 1 o2614 writefull 14057b7ef767814f\n"),
        (
            6,
            0,
            "op 8 1 o2614 writefull 14057b7ef767814f\nget 5 o1849 read 0 0\n\
            get 15 o1874 read 0 0\nget 16 o1473 read 0 0\nget 3 o250 read 0 0\nget 1 o2782 stat\n",
        ),
        (
            3,
            1,
            "op 4 1 o2548 writefull 6c576fac43fd007c\nget 7 o307 read 0 0\n\
            op 1 3 o1393 append a5fae1992097aa0e\n",
        ),
        (
            1,
            4544894006797563468,
            "op 1 1 o0 writefull 00000000000000ab\n",
        ),
        (
            2,
            18446744073709551615,
            "get 11 o1977 stat\nop 4 2 o2687 append b1a9556f832abf49\n",
        ),
    ];
    for (count, start, text) in scripts {
        match load_script(rt.alloc(), count, start) {
            Ok(script) => assert!(rt;
                script.as_slice() == text.as_bytes(),
                "{count} from {start}"
            ),
            Err(_) => assert!(rt; false, "no memory for {count} from {start}"),
        }
    }
}

#[test]
fn ten_thousand_lines(rt: HostRuntime) {
    let made = load_script(rt.alloc(), 10_000, 5);
    let newlines = match &made {
        Ok(script) => script.iter().filter(|byte| **byte == b'\n').count(),
        Err(_) => 0,
    };
    assert_eq!(rt; newlines, 10_000);
}
