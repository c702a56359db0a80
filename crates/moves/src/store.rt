ghost use Rattle.std.specs.Prelude.{◌≤◌, length};

mod methods;

// A list that grows in handed-in places.
#[derive(Drop)]
pub struct Store<'a, X> {
    places: &'a mut [X],
    used: usize,
    ghost fits: { used ≤ length places.now },
}
