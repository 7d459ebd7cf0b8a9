// What the modem says of itself in its requests.
ghost use Rattle.std.specs.Prelude.{◌≡◌, true};
ghost use Rattle.frames.specs.Sizes.{terminal_sized};

#[derive(Clone, Copy, PartialEq, Eq)]
pub struct Terminal {
    // Mobile station classmark 1.
    pub classmark: u8,
    // MS network capability.
    pub capability: [u8; 2],
    // DRX parameter.
    pub drx: [u8; 2],
    // MS radio access capability.
    pub radio: [u8; 12],
    ghost sized: { terminal_sized capability drx radio ≡ true },
}
