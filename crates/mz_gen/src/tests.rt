//! The first and the last text of a made library.
use crate::made::{generate, made_names};
use mz_io::file_kind::FileKind;

#[test]
fn makes_two_hundred_articles(rt: HostRuntime) {
    let shelf = generate(rt.alloc(), 200).expect(&rt, "memory");
    let names = made_names(rt.alloc(), 200).expect(&rt, "memory");
    let rows: [(usize, &[u8]); 4] = [
        (
            0,
            b"environ\nbegin\ntheorem for x being object holds x = x;\ntheorem for x,y being object st x = y holds y = x;\n",
        ),
        (
            2,
            b"environ\n theorems G0000;\nbegin\ntheorem for x being object holds x = x;\ntheorem for x,y being object st x = y holds y = x by G0000:1;\n",
        ),
        (
            4,
            b"environ\n theorems G0001;\nbegin\ntheorem for x being object holds x = x;\ntheorem for x,y being object st x = y holds y = x by G0001:1;\n",
        ),
        (
            199,
            b"environ\n theorems G0099, G0196;\nbegin\ntheorem for x being object holds x = x;\ntheorem for x,y being object st x = y holds y = x by G0099:1;\n",
        ),
    ];
    assert!(rt; names.len() == 200);
    for (i, text) in rows {
        let bytes = shelf.files.lookup(FileKind::Article, &names.items[i]);
        assert!(rt; bytes == Some(text));
    }
}
