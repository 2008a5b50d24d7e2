// Lists of leaf values: what each line holds, and whether two lists hold the same values.
use crate::Ended;
use crate::files::unusable;
use std::fs;
use texts::lists::{
    Entry, ListFault, NamedList, entry_line, first_difference, read_list, verdict_line,
};
use texts::typed::TypedLeaf;

// Says why a file is no list.
fn no_list<V: TypedLeaf>(rt: &HostRuntime, name: &str, fault: ListFault) -> Ended {
    let wanted = V::wanted();
    let _ = match fault {
        ListFault::Unreadable(line) => eprintln!(rt;
            "cellstore: {name}: line {line}: wanted {wanted}"
        ),
        ListFault::Memory => eprintln!(rt; "cellstore: {name}: out of memory"),
    };
    Ended::Wrong
}

fn read_file<V: TypedLeaf>(rt: &HostRuntime, name: &str) -> Result<Vec<Entry<V>>, Ended> {
    let text = fs::read_to_string(rt, name).map_err(|e| unusable(rt, name, &e))?;
    read_list(rt.alloc(), text.as_str()).map_err(|fault| no_list::<V>(rt, name, fault))
}

fn print_list<V: TypedLeaf>(rt: &HostRuntime, list: &[Entry<V>]) -> Result<(), Ended> {
    for entry in list {
        let line = entry_line(rt.alloc(), *entry)?;
        let _ = rt.println(line);
    }
    Ok(())
}

// Prints what each line of a list holds.
pub fn list<V: TypedLeaf>(rt: &HostRuntime, name: &str) -> Result<(), Ended> {
    let list = read_file::<V>(rt, name)?;
    print_list(rt, list.as_slice())
}

// Prints two lists, and whether they hold the same values.
pub fn compare<V: TypedLeaf>(rt: &HostRuntime, a_name: &str, b_name: &str) -> Result<(), Ended> {
    let a = read_file::<V>(rt, a_name)?;
    let b = read_file::<V>(rt, b_name)?;
    print_list(rt, a.as_slice())?;
    print_list(rt, b.as_slice())?;
    print_verdict(
        rt,
        NamedList {
            name: a_name,
            entries: a.as_slice(),
        },
        NamedList {
            name: b_name,
            entries: b.as_slice(),
        },
    )
}

fn print_verdict<V: TypedLeaf>(
    rt: &HostRuntime,
    a: NamedList<V>,
    b: NamedList<V>,
) -> Result<(), Ended> {
    let apart = first_difference(a.entries, b.entries);
    let line = verdict_line(rt.alloc(), a, b, apart)?;
    let _ = rt.println(line);
    match apart {
        None => Ok(()),
        Some(_) => Err(Ended::Different),
    }
}
