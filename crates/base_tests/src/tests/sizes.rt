//! Sizes and alignments of types.
ghost use Rattle.std.specs.Prelude.{◌≡◌, ◌+◌, ◌*◌, ◌<◌, ◌≤◌, map};
ghost use Rattle.c_tree.specs.Typed.{array};
ghost use Rattle.c_tree.specs.TypedViews.{type_view, layout_view};
ghost use Rattle.c_tree.specs.TypedLayout.{IsSized, size_in};

use ak_words::IntType;
use c_tree::typed::{CType, Layout};
use c_tree::{align_of, size_of};
use std::alloc::{AllocError, AllocFailed, Global};
use std::test::Fail;

// Where the next member may begin behind one of this type, as a struct's members are laid out: a
// caller that rests on the contract alone.
fn end_of(t: &CType, structs: &[Layout], offset: u32) -> u32
    requires sized { IsSized (map layout_view structs.now) (type_view t.now) }
    requires small { offset + size_in (map layout_view structs.now) (type_view t.now) ≤ 16777216 }
    ensures { result ≡ offset + size_in (map layout_view structs.now) (type_view t.now) }
{
    offset + size_of(t, structs)
}

#[test]
fn sizes_of_types(rt: HostRuntime) -> Result<(), Fail> {
    let alloc = rt.alloc();
    for (signed, bits, want) in [(true, 8, 1), (false, 16, 2), (true, 32, 4), (false, 64, 8)] {
        let t = CType::Int(IntType { signed, bits });
        assert_eq!(rt; (size_of(&t, &[]), align_of(&t, &[])), (want, want));
    }
    assert_eq!(rt;
        (size_of(&CType::Mutex, &[]), align_of(&CType::Mutex, &[])),
        (8, 8)
    );
    let pointer = CType::Pointer(Box::new(alloc, CType::Void).map_err(AllocError::from)?);
    assert_eq!(rt; (size_of(&pointer, &[]), align_of(&pointer, &[])), (8, 8));
    let row = CType::Array(
        Box::new(alloc, CType::Int(IntType::INT)).map_err(AllocError::from)?,
        5,
    );
    assert_eq!(rt; (size_of(&row, &[]), align_of(&row, &[])), (20, 4));
    Ok(())
}

#[test]
fn sizes_of_structs(rt: HostRuntime) -> Result<(), Fail> {
    let alloc = rt.alloc();
    let structs = vec![in alloc;
        Layout {
            offsets: Vec::new(alloc),
            types: Vec::new(alloc),
            size: 24,
            align: 4
        },
    ]?;
    let one = CType::Struct(0);
    assert_eq!(rt;
        (size_of(&one, &structs), align_of(&one, &structs)),
        (24, 4)
    );
    assert_eq!(rt; end_of(&one, &structs, 8), 32);
    Ok(())
}
