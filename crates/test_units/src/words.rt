//! How a fault and a text are told, which no clause says.
use occ_types::{Fault, Text};
use std::alloc::Global;
use std::test::Fail;

// A text, and a fault that no other test tells.
fn told(alloc: Global) -> Result<String, Fault> {
    let word = Text::new(alloc, "häher")?;
    Ok(format!(in alloc; "{word:?}; {}", Fault::QueueFull)?)
}

#[test]
fn texts_and_faults_are_told(rt: HostRuntime) -> Result<(), Fail> {
    let told = told(rt.alloc())?;
    assert_eq!(rt;
        told.as_str(),
        "Text { text: \"häher\" }; F9: the queue of the session is full"
    );
    Ok(())
}
