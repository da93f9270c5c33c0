//! The count of steps that takes no memory.

ghost use Rattle.std.specs.Prelude.{◌≡◌};

use sparse_coo_dense::steps::Steps;

fn two_steps() -> Steps
    ensures { result ≡ 2 }
{
    let mut steps = Steps::new();
    steps.tick();
    steps.tick();
    steps
}

#[test]
fn steps_take_no_memory(rt: HostRuntime) {
    let steps = two_steps();
    assert!(rt; size_of::<Steps>() == 0);
    drop(steps);
}
