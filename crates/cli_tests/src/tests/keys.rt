//! The keys of files, as lines and as objects of JSON.

use super::duplicates::{Listing, assert_run};

/// Arguments with what is printed of the files that they name, and what is reported.
const ROWS: [(&[&str], &[u8], &[u8]); 5] = [
    (
        &["p", "keys", "packed", "gone"],
        b"",
        b"packed: line 1: NoHeader: The file begins with no header, neither [M2] nor x = .., or it ends before one. This is a gzip file: unpack it first, with gunzip.\ngone: no such file\n",
    ),
    (
        &["p", "keys", "packed", "--json", "gone"],
        b"{\"name\":\"packed\",\"kind\":\"NoHeader\",\"line\":1,\"reason\":\"The file begins with no header, neither [M2] nor x = .., or it ends before one. This is a gzip file: unpack it first, with gunzip.\"}\n{\"name\":\"gone\",\"kind\":\"ReadFault\",\"reason\":\"no such file\"}\n",
        b"",
    ),
    (
        &["p", "keys", "twins", "bad", "q\"\n"],
        b"5d590ed454cf10f531d11807fad8d284b97111a728b0ebc44c0fdc897c4d34ae  twins\n",
        b"bad: line 1: BadHeader: The header isn't x = .., y = .., rule = ..\nq\"\\n: no such file\n",
    ),
    (
        &["p", "keys", "--json", "twins", "bad", "q\"\n"],
        b"{\"name\":\"twins\",\"key\":\"5d590ed454cf10f531d11807fad8d284b97111a728b0ebc44c0fdc897c4d34ae\"}\n{\"name\":\"bad\",\"kind\":\"BadHeader\",\"line\":1,\"reason\":\"The header isn't x = .., y = .., rule = ..\"}\n{\"name\":\"q\\\"\\n\",\"kind\":\"ReadFault\",\"reason\":\"no such file\"}\n",
        b"",
    ),
    (
        &["p", "keys", "--zero", "--json", "q\x01\\", "--from", "-"],
        b"{\"name\":\"q\\u0001\\\\\",\"kind\":\"ReadFault\",\"reason\":\"no such file\"}\n{\"name\":\"east\\n\\nline\\nabsent\\n\",\"kind\":\"ReadFault\",\"reason\":\"no such file\"}\n",
        b"",
    ),
];

/// The form that is asked for, the key of the two cells in generation 7, and their key if the generation is ignored: the SHA-256 of the texts that
/// docs/FORMATS.md gives, which differ in a line `#G 7`.
const LATER: [(&str, &[u8], &[u8]); 3] = [
    (
        "placed",
        b"719ed7079c4b79610532fa877550a15106de005b093eda22745b53a13405e8a6  later\n",
        b"5d590ed454cf10f531d11807fad8d284b97111a728b0ebc44c0fdc897c4d34ae  later\n",
    ),
    (
        "moved",
        b"b80fcfa71db90b55aa3804690b7d6f5e7af0cd1842f5ed5d8844dbd1ce9b421e  later\n",
        b"0616653d0bc0678b169409fecd9cbe5c35ede14a9362874e54cc15f595a8db52  later\n",
    ),
    (
        "turned",
        b"63cace4ad1651d2a70176ea08ee4b2d2bac23804f318dd4a59c30733db3e369e  later\n",
        b"d048d9ad81c75ca39a04c353392661cb34b2127947124f5c6f3229c38e2e96e8  later\n",
    ),
];

/// A pattern in a later generation has the key of the first one only if the generation is ignored.
#[test]
fn generations(rt: HostRuntime) {
    for &(form, counted, ignored) in &LATER {
        let words = ["p", "keys", "later", "--form", form];
        assert_run(&rt, rt.alloc(), Listing::Keys, &words, (0, counted, b""));
        let words = ["p", "keys", "later", "--form", form, "--ignore-generation"];
        assert_run(&rt, rt.alloc(), Listing::Keys, &words, (0, ignored, b""));
    }
}

/// A file with a key, one that is refused, and one that can't be opened.
#[test]
fn lines_and_objects(rt: HostRuntime) {
    for &(words, text, reports) in &ROWS {
        assert_run(&rt, rt.alloc(), Listing::Keys, words, (3, text, reports));
    }
}
