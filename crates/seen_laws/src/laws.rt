//! The law of the form of contexts. It holds no code: it is the contract of a function that does nothing.

ghost use Rattle.seen_laws.specs.Laws.{ContextsHaveForm};

/// In every run of a file that is sound, where readings begin no later than they end and steps name stages
/// by their numbers from 1: the context of each stage, that of each call or fence statement under way and
/// of each stub, and that of each chunk and end mark have their least times and services in the order of
/// services, and depend on each register of the file once at most.
pub fn contexts_have_form()
    ensures { ContextsHaveForm }
{}
