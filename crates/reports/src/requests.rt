// What the words of a command ask for.
ghost use Rattle.std.specs.Prelude.{◌≡◌, ℕ, ◌-◌, List, length};
ghost use Rattle.reports.specs.Requests.{word_at, kind_word, Says, Only, Asks};

#[derive(Clone, Copy, PartialEq, Eq, Debug)]
pub enum Kind {
    Point,
    Instruction,
}

#[derive(Clone, Copy, PartialEq, Eq, Debug)]
pub enum Task {
    // The leaf values of a list.
    Leaves,
    // Whether two lists hold the same values.
    SameLeaves,
    // The cells of a packed bank.
    Dump,
    // What an image holds.
    Check,
    // Whether two images are the same.
    Compare,
    // The hands and cells of an image.
    Show,
    // The same as a drawing.
    Draw,
}

#[derive(Clone, Copy, PartialEq, Eq, Debug)]
pub struct Request {
    pub kind: Kind,
    pub task: Task,
}

// An Option, here and below: `FromStr` would need an error, which nobody would read.
fn kind_of(word: &str) -> Option<Kind>
    ensures { Only (λ k. word.now ≡ kind_word k) result }
{
    match word {
        "point" => Some(Kind::Point),
        "instruction" => Some(Kind::Instruction),
        _ => None,
    }
}

// The task on one file.
fn task_on_one(word: &str) -> Option<Task>
    ensures { (second : List ℕ) → Only (Says word.now 1 second) result }
{
    match word {
        "leaves" => Some(Task::Leaves),
        "dump" => Some(Task::Dump),
        "check" => Some(Task::Check),
        "show" => Some(Task::Show),
        _ => None,
    }
}

// The task with two words after the kind.
fn task_on_two(word: &str, second: &str) -> Option<Task>
    ensures { Only (Says word.now 2 second.now) result }
{
    match (word, second) {
        ("leaves", _) => Some(Task::SameLeaves),
        ("compare", _) => Some(Task::Compare),
        ("show", "--dot") => Some(Task::Draw),
        _ => None,
    }
}

// The task that all words say.
fn task_in(words: &[String]) -> Option<Task>
    ensures { Only (Says (word_at words.now 1) (length words.now - 3) (word_at words.now 4)) result }
{
    match words {
        [_, task, _, _] => task_on_one(task.as_str()),
        [_, task, _, _, second] => task_on_two(task.as_str(), second.as_str()),
        _ => None,
    }
}

fn kind_in(words: &[String]) -> Option<Kind>
    ensures { Only (λ k. word_at words.now 2 ≡ kind_word k) result }
{
    match words {
        [_, _, kind, ..] => kind_of(kind.as_str()),
        _ => None,
    }
}

// What the words of a command ask for, the program's name being the first; none where they ask for nothing that there is.
pub fn asked_for(words: &[String]) -> Option<Request>
    ensures { Only (Asks words.now) result }
{
    let kind = kind_in(words)?;
    let task = task_in(words)?;
    Some(Request { kind, task })
}
