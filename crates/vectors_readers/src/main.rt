// Runs the readers on the stored cases of each file that the arguments name, and prints for each file how many cases it has and how
// many of the answers differ from the stored ones. tests/readers/make_cases.py makes the files and says how. The expected output has
// four lines: no case of `cases.bin` differs; every case of `falsified.bin`, whose answers are changed, does; `cut.bin` ends inside a
// case, and `missing.bin` isn't there, which must both be seen.
#![tactic(auto)]

mod answer;
mod binary;
mod case;
mod lists;
mod numbers;
mod texts;

fn main(rt: HostRuntime) {
    replay::run(
        &rt,
        || (replay::large_buffer(), [0; case::ANSWER]),
        case::one,
    );
}
