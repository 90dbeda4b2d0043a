// The kinds of file: their widths, and the colour that no edge may leave.
ghost use Rattle.std.specs.Prelude.{◌≡◌, ◌≤◌};
ghost use Rattle.std.proofs.Common.{lit≤};
ghost use Rattle.layout.specs.Widths.{Usable};

// The widths in bits of a file's fields: states, labels, start, edges, and one colour; and the fault colour, which no edge may leave, for
// it shuts the drive down, where the file has one.
#[derive(Clone, Copy)]
pub struct Profile {
    pub states: usize,
    pub labels: usize,
    pub start: usize,
    pub edges: usize,
    pub colour: usize,
    pub fault: Option<usize>,
    pub ghost usable: { Usable states labels start edges colour fault },
}

// A kind of file, known by its profile.
pub trait Format {
    ghost use Rattle.layout.specs.declared.profile.Profile.{Profile};

    ghost profile: { Profile };

    fn profile() -> Profile
        ensures { result ≡ profile };

    // A row of a table has room for 64 labels.
    ghost few_labels: { profile.labels ≤ 6 };
}

pub struct Large;

// The file for the entry model's board of sixteen states.
pub struct Pocket;

impl Format for Large {
    ghost use Rattle.layout.specs.Layout.{large};

    ghost profile = { large };

    ghost few_labels = { lit≤ tt };

    fn profile() -> Profile {
        Profile {
            states: 8,
            labels: 6,
            start: 8,
            edges: 15,
            colour: 6,
            fault: Some(63),
        }
    }
}

impl Format for Pocket {
    ghost use Rattle.layout.specs.Layout.{pocket};

    ghost profile = { pocket };

    ghost few_labels = { lit≤ tt };

    fn profile() -> Profile {
        Profile {
            states: 4,
            labels: 3,
            start: 4,
            edges: 8,
            colour: 4,
            fault: None,
        }
    }
}
