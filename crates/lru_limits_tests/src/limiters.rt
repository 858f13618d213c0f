//! The debug texts of limiters.
use lru_limits::{ByCost, ByLength, ByMemoryUsage, RandomState, Storing, Unlimited};
use std::test::Fail;
use test_helpers::check;

#[test]
fn texts(rt: HostRuntime) -> Result<(), Fail> {
    let (length, memory) = (ByLength::from(3), ByMemoryUsage::from(560usize));
    let (cost, storing, state) = (ByCost::new(10), Storing(Unlimited), RandomState::default());
    let text = format!(in rt.alloc(); "{length:?} {memory:?} {cost:?} {storing:?} {state:?}")?;
    check!(rt; text.as_str()
            == "ByLength { max_length: 3 } ByMemoryUsage { max_bytes: 560 } ByCost { limit: 10, cost: 0 } \
            Storing(Unlimited) RandomState { .. }");
    Ok(())
}
