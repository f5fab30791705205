use name_prefixes::Prefixes;
use std::alloc::{AllocError, Global};

struct Row {
    name: &'static str,
    places: &'static [usize],
}

static PATHS: [&str; 6] = ["a.", "a.b.", "b.", "a.", "a.b.c.", "a-"];

static ROWS: [Row; 7] = [
    Row {
        name: "a.x",
        places: &[0, 3],
    },
    Row {
        name: "a.b.c.x",
        places: &[0, 1, 3, 4],
    },
    Row {
        name: "a.b.d",
        places: &[0, 1, 3],
    },
    Row {
        name: "b.",
        places: &[2],
    },
    Row {
        name: "a-x",
        places: &[5],
    },
    Row {
        name: "a",
        places: &[],
    },
    Row {
        name: "",
        places: &[],
    },
];

fn prefixes<'a>(alloc: Global, all: &'a [&'static str]) -> Result<Prefixes<'a>, AllocError> {
    let mut paths = Vec::new(alloc);
    for path in all {
        paths.push(path.as_bytes())?;
    }
    Prefixes::new(alloc, paths)
}

fn places_of(alloc: Global, prefixes: &Prefixes, name: &str) -> Result<Vec<usize>, AllocError> {
    let mut places = prefixes.prefixes(alloc, name.as_bytes())?;
    places.sort()?;
    Ok(places)
}

fn begin_the_name(alloc: Global, prefixes: &Prefixes, row: &Row) -> bool {
    match places_of(alloc, prefixes, row.name) {
        Ok(places) => places.as_slice() == row.places,
        Err(_) => false,
    }
}

#[test]
fn paths_that_begin_a_name(rt: HostRuntime) -> Result<(), AllocError> {
    let alloc = rt.alloc();
    let prefixes = prefixes(alloc, &PATHS)?;
    assert_eq!(rt;
        ROWS.iter()
            .position(|row| !begin_the_name(alloc, &prefixes, row)),
        None
    );
    Ok(())
}
