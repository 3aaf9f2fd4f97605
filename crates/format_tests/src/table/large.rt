//! A large file: many variables.
use life_base::{Fault, Kind};
use life_table::{Entry, NameSeed, Transition, Var, read_table_seeded};
use std::alloc::{AllocError, Global};
use std::process::Abort;
use std::rt::HostRuntime;

/// A number below 100,000 with each of its five digits.
fn digits(number: usize) -> [u8; 5] {
    [
        b'0' + (number / 10000 % 10) as u8,
        b'0' + (number / 1000 % 10) as u8,
        b'0' + (number / 100 % 10) as u8,
        b'0' + (number / 10 % 10) as u8,
        b'0' + (number % 10) as u8,
    ]
}

/// The name of a variable of a chain.
fn name_of(number: usize) -> [u8; 6] {
    let [first, second, third, fourth, fifth] = digits(number);
    [b'v', first, second, third, fourth, fifth]
}

/// As many variables, from the first on with the states 1 and 2, each with the states of the one before, and a line after them.
fn chain(alloc: Global, count: usize, line: &str) -> Result<Vec<u8>, AllocError> {
    let mut bytes = Vec::new(alloc);
    bytes.extend_from_slice(
        b"@RULE A\n@TABLE\nn_states:3\nneighborhood:vonNeumann\nsymmetries:none\nvar v00000={1,2}\n",
    )?;
    for number in 1..count {
        bytes.extend_from_slice(b"var ")?;
        bytes.extend_from_slice(&name_of(number))?;
        bytes.extend_from_slice(b"={")?;
        bytes.extend_from_slice(&name_of(number - 1))?;
        bytes.extend_from_slice(b"}\n")?;
    }
    bytes.extend_from_slice(line.as_bytes())?;
    Ok(bytes)
}

/// Whether the variables are those of a chain.
fn is_chain(variables: &[Var]) -> bool {
    for (number, var) in variables.iter().enumerate() {
        if var.name.as_slice() != name_of(number).as_slice() || var.states != [6, 0, 0, 0] {
            return false;
        }
    }
    variables.len() == 10000
}

/// Whether there is one transition, on this line and with these entries.
fn is_only(transitions: &[Transition], line: u64, inputs: &[Entry], output: Entry) -> bool {
    match transitions {
        [found] => {
            found.line == line && found.inputs.as_slice() == inputs && found.output == output
        }
        _ => false,
    }
}

#[test]
fn a_chain_of_variables_is_read(rt: HostRuntime) {
    let line = "0,v09999,v00000,v05000,0,v05000\n";
    let bytes = chain(rt.alloc(), 10000, line).expect(&rt, "memory");
    let table = read_table_seeded(rt.alloc(), NameSeed::fixed(), &bytes).expect(&rt, "table");
    assert!(rt; is_chain(table.vars.as_slice()));
    let middle = Entry::Var(5000);
    let inputs = [
        Entry::Fixed(0),
        Entry::Var(9999),
        Entry::Var(0),
        middle,
        Entry::Fixed(0),
    ];
    assert!(rt; is_only(table.lines.as_slice(), 10006, &inputs, middle));
}

/// The line after a chain of 10,000 variables is refused with this kind.
fn assert_chain_ends(rt: &impl Abort, alloc: Global, line: &str, kind: Kind) {
    let bytes = chain(alloc, 10000, line).expect(rt, "memory");
    let refused = read_table_seeded(alloc, NameSeed::fixed(), &bytes).err();
    assert!(rt; refused == Some(Fault::at(10006, kind)), "{line}");
}

#[test]
fn a_chain_ends_where_a_name_is_wrong(rt: HostRuntime) {
    for &(line, kind) in &[
        ("var v09999={1}\n", Kind::BadVariable),
        ("var v00000={1}\n", Kind::BadVariable),
        ("var v10000={v10000}\n", Kind::BadVariable),
        ("var v10000={v10001}\n", Kind::BadVariable),
        ("0,v10000,0,0,0,1\n", Kind::BadTransition),
        ("0,v0000,0,0,0,1\n", Kind::BadTransition),
        ("0,v09999,0,0,0,v00000\n", Kind::UnboundOutput),
    ] {
        assert_chain_ends(&rt, rt.alloc(), line, kind);
    }
}
