//! What refusals print.
use std::test::*;
use tag_pool::{OpenFault, ResizeCause, TagFault};

#[test]
fn refusals_print_their_cause(rt: HostRuntime) -> Result<(), Fail> {
    let mut text = String::new(rt.alloc());
    write!(text, "{}; {}; ", OpenFault::LifeTooLong, OpenFault::Memory)?;
    write!(text, "{}; {}; ", TagFault::NotHeld, TagFault::Spent)?;
    write!(text, "{}; ", ResizeCause::InUse(2, 1))?;
    write!(text, "{}", ResizeCause::Missing(3))?;
    assert_eq!(rt;
        text.as_str(),
        "a life above 2^48 tags; out of memory; the caller does not hold the tag, or named it twice; \
        the caller could win more tags than its life allows; 2 tags are held and 1 are posted; caller 3 is missing"
    );
    Ok(())
}
