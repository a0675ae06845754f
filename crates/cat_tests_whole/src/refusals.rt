//! What is refused for its size, and how refusals are said.
use cat_core::catalogue::Catalogue;
use cat_core::fault::CoreFault;
use cat_inputs::form::Form;
use cat_inputs::input::read_mutation;
use cat_layers::layered::Layered;
use cat_model::types::{Counter, Fault, OrphanRule, Settings};
use cat_replies::events::push_refused;
use cat_tree::text::Text;
use std::test::Fail;

// Why an event is refused, and its reply.
const CASES: [(Fault, &[u8]); 7] = [
    (Fault::OldSerial(5), b"refused old 5\n"),
    (Fault::NotFound, b"refused not_found\n"),
    (Fault::TooLarge(16), b"refused too_large 16\n"),
    (Fault::Spent(Counter::Arrival), b"refused spent arrival\n"),
    (Fault::Spent(Counter::Number), b"refused spent number\n"),
    (Fault::Spent(Counter::Token), b"refused spent token\n"),
    (Fault::Spent(Counter::Ticket), b"refused spent ticket\n"),
];

#[test]
fn says_why_events_are_refused(rt: HostRuntime) -> Result<(), Fail> {
    for (fault, wanted) in CASES.iter() {
        let mut out = Vec::new(rt.alloc());
        push_refused(&mut out, *fault)?;
        assert_eq!(rt; out.as_slice(), *wanted);
    }
    Ok(())
}

// A catalogue that stores 16 bytes of input.
const SMALL: Settings = Settings {
    interval: 1,
    lease: 1,
    input_limit: 16,
    orphans: OrphanRule::Keep,
};

const ONE: &[u8] =
    b"{\"serial\":1,\"entities\":[{\"entity\":{\"apiVersion\":\"backstage.io/v1alpha1\",\"kind\":\"Group\",\"metadata\":{\"name\":\"a\"},\"spec\":{\"type\":\"team\",\"children\":[]}}}]}";

#[test]
fn inputs_past_the_limit_are_refused(rt: HostRuntime) -> Result<(), Fail> {
    let alloc = rt.alloc();
    let Ok(mutation) = read_mutation(alloc, Form::Full, ONE) else {
        panic!(rt; "no mutation")
    };
    let provider = Text::of(alloc, "git")?;
    let mut catalogue = Catalogue::empty(alloc, Layered, SMALL);
    let refused = catalogue.mutate(alloc, &provider, &mutation);
    drop(catalogue);
    assert!(rt; matches!(refused, Err(CoreFault::TooLarge(bytes)) if bytes > 16));
    Ok(())
}
