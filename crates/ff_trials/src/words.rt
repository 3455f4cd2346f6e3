//! Jobs that words ask for.
use ff_words::{Job, WordsNo, read_words};
use std::alloc::Global;
use std::test::Fail;

fn read(alloc: Global, line: &str) -> Result<Option<Job>, Fail> {
    let mut words = Vec::new(alloc);
    if !line.is_empty() {
        for word in line.split(' ') {
            words.push(String::from_str(alloc, word)?)?;
        }
    }
    match read_words(alloc, words.as_slice()) {
        Ok(job) => Ok(Some(job)),
        Err(WordsNo::Usage) => Ok(None),
        Err(WordsNo::NoMemory) => Err(Fail::from("no memory")),
    }
}

#[test]
fn reads_jobs(rt: HostRuntime) -> Result<(), Fail> {
    let alloc = rt.alloc();
    assert_eq!(rt; read(alloc, "solve")?, Some(Job::Solve { budget: 1048576 }));
    assert_eq!(rt;
        read(alloc, "--budget=0000000186 solve")?,
        Some(Job::Solve { budget: 186 })
    );
    assert_eq!(rt;
        read(alloc, "bench --workers 16 --budget 7")?,
        Some(Job::Bench {
            budget: 7,
            workers: 16
        })
    );
    assert_eq!(rt;
        read(alloc, "make --budget=5 400")?,
        Some(Job::Make {
            count: 400,
            budget: 5
        })
    );
    assert_eq!(rt; read(alloc, "check")?, Some(Job::Check));
    Ok(())
}
