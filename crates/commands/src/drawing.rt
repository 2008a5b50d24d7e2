// An image as a drawing in Graphviz's language: shared cells are filled, STICKY references dashed.
use crate::Ended;
use crate::files::read_image;
use cells::{Cell, Field, Tag};
use images::{cell_of, hand_of};
use reports::sharing::shared_cells;
use std::alloc::AllocError;
use texts::typed::TypedLeaf;

// An arrow from a named place to the cell that its field refers to.
fn draw_arrow(rt: &HostRuntime, from: &str, field: Field) {
    if let Field::To(r) = field {
        let a = r.address;
        let _ = match r.tag {
            Tag::Unique => println!(rt; "  {from} -> cell{a} [label=\"unique\"];"),
            Tag::Sticky => println!(rt; "  {from} -> cell{a} [label=\"sticky\", style=dashed];"),
        };
    }
}

fn draw_cell<V: TypedLeaf>(
    rt: &HostRuntime,
    at: u16,
    cell: Cell<V>,
    shared: bool,
) -> Result<(), AllocError> {
    let fill = if shared {
        ", style=filled, fillcolor=lightgrey"
    } else {
        ""
    };
    match cell {
        Cell::Pair { left, right } => {
            let _ = println!(rt;
                "  cell{at} [shape=record, label=\"{at}|<l>left|<r>right\"{fill}];"
            );
            let l = format!(in rt.alloc(); "cell{at}:l")?;
            let r = format!(in rt.alloc(); "cell{at}:r")?;
            draw_arrow(rt, l.as_str(), left);
            draw_arrow(rt, r.as_str(), right);
        }
        Cell::Leaf(v) => {
            let value = v.show(rt.alloc())?;
            let _ = println!(rt; "  cell{at} [shape=box, label=\"{at}: {value}\"{fill}];");
        }
        Cell::Blank | Cell::Moved { .. } => {}
    }
    Ok(())
}

// By number, which is printed.
fn draw_hands(rt: &HostRuntime, image: &[u8]) -> Result<(), AllocError> {
    for i in 0..16u8 {
        let field = hand_of(image, i).unwrap_or(Field::Nil);
        if let Field::To(_) = field {
            let _ = println!(rt; "  hand{i} [shape=plaintext, label=\"hand {i}\"];");
            let from = format!(in rt.alloc(); "hand{i}")?;
            draw_arrow(rt, from.as_str(), field);
        }
    }
    Ok(())
}

fn draw<V: TypedLeaf>(rt: &HostRuntime, image: &[u8]) -> Result<(), AllocError> {
    let shared = shared_cells::<V>(image, u16::MAX);
    let _ = rt.println("digraph image {");
    draw_hands(rt, image)?;
    for (at, cell) in (0..=u16::MAX).map_while(|at| Some((at, cell_of::<V>(image, at)?))) {
        draw_cell(rt, at, cell, shared.has(at))?;
    }
    let _ = rt.println("}");
    Ok(())
}

pub fn show<V: TypedLeaf>(rt: &HostRuntime, name: &str) -> Result<(), Ended> {
    let image = read_image::<V>(rt, name, "")?;
    draw::<V>(rt, image.as_slice())?;
    Ok(())
}
