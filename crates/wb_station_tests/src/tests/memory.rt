//! Want of memory.
use linked_list_allocator::LocalHeap;
use std::alloc::Global;
use std::test::Fail;
use wb_station::{HttpFault, Routes, request_of};

/// Voids with forms that want no memory, but for an escape in a key that is longer than the heap.
const VOIDS: &[(&str, bool)] = &[
    (
        "POST /voids HTTP/1.1\r\nContent-Length: 112\r\n\r\nplate=AB-12&key=aaaaaaaaaaaaaaaaaaaaaaaaaaaaaaaaaaaaaaaaaaaaaaaaaaaaaaaaaaaaaaaaaaaaaaaaaaaaaaaaaaaaaaaaaaaaaaaa",
        false,
    ),
    (
        "POST /voids HTTP/1.1\r\nContent-Length: 115\r\n\r\nplate=AB-12&key=aaaaaaaaaaaaaaaaaaaaaaaaaaaaaaaaaaaaaaaaaaaaaaaaaaaaaaaaaaaaaaaaaaaaaaaaaaaaaaaaaaaaaaaaaaaaaaaa%41",
        true,
    ),
    (
        "POST /voids HTTP/1.1\r\nContent-Length: 113\r\n\r\nplate=AB-12&key=aaaaaaaaaaaaaaaaaaaaaaaaaaaaaaaaaaaaaaaaaaaaaaaaaaaaaaaaaaaaaaaaaaaaaaaaaaaaaaaaaaaaaaaaaaaaaaaa+",
        true,
    ),
    (
        "POST /voids HTTP/1.1\r\nContent-Length: 18\r\n\r\nplate=AB-12&key=K1",
        false,
    ),
];

/// Whether these bytes want more memory than there is on a heap of 64 bytes.
fn wants_memory(alloc: Global, bytes: &[u8]) -> Result<bool, Fail> {
    let heap = LocalHeap::new(alloc, 64)?;
    let routes = Routes::new(alloc)?;
    Ok(matches!(request_of(&heap, &routes, bytes), Err(HttpFault::Memory)))
}

#[test]
fn wants_memory_for_an_escape_alone(rt: HostRuntime) -> Result<(), Fail> {
    for (request, wants) in VOIDS {
        let wanted = wants_memory(rt.alloc(), request.as_bytes())?;
        assert_eq!(rt; wanted, *wants, "{request}");
    }
    Ok(())
}
