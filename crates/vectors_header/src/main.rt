// Loads the header of each stored case of each file that the arguments name, and prints for each file how many cases it has and in how
// many of them the answer or a lent list differs from what is stored. tests/header/make_cases.py makes the files and says how. The
// expected output has four lines: no case of `cases.bin` differs; every case of `falsified.bin`, of whose stored values one is
// changed, does; `cut.bin` ends inside a case, and `missing.bin` isn't there, which must both be seen.
#![tactic(auto)]

mod answer;
mod case;
mod lists;

fn main(rt: HostRuntime) {
    replay::run(&rt, || ([0; case::ROOM], [0; case::ROOM]), case::one);
}
