// A leaf's pointer: the access class in its top 8 bits, the recording number in its low 56, taken apart and put together.
#![tactic(auto)]

ghost use Rattle.std.specs.Prelude.{◌≡◌, ◌≤◌, ◌<◌};
ghost use Rattle.model.specs.Slots.{RECORDINGS, recording_of, class_of, pointer_of, with_class, recording_ok, class_ok, pointer_ok};

// 2 to the power 56.
const RECORDINGS: u64 = 72057594037927936;

pub fn recording(pointer: u64) -> u64
    ensures { result ≡ recording_of pointer }
{
    pointer % RECORDINGS
}

pub fn class(pointer: u64) -> u64
    ensures { result ≡ class_of pointer }
{
    pointer / RECORDINGS
}

// The pointer of a recording number and a class.
// The class is a number and no enum: the definitions count with it, and a call refuses a wrong one at its place among its tests.
pub fn join(recording: u64, access: u64) -> u64
    requires recording_bound { recording < RECORDINGS }
    requires access_bound { access ≤ 2 }
    ensures { result ≡ pointer_of recording access }
{
    access * RECORDINGS + recording
}

// The pointer with another class.
pub fn with_class(pointer: u64, access: u64) -> u64
    requires { access ≤ 2 }
    ensures { result ≡ with_class pointer access }
{
    join(recording(pointer), access)
}

// Whether there is such a recording number.
#[tactic(auto, unfolding(model::specs::Slots::recording_ok))]
pub fn recording_ok(recording: u64) -> bool
    ensures { result ≡ recording_ok recording }
{
    (1..RECORDINGS).contains(&recording)
}

// Whether there is such a class.
pub fn class_ok(access: u64) -> bool
    ensures { result ≡ class_ok access }
{
    access <= 2
}

// Whether the map of a sound table may have the pointer.
pub fn ok(pointer: u64) -> bool
    ensures { result ≡ pointer_ok pointer }
{
    recording_ok(recording(pointer)) && class_ok(class(pointer))
}
