ghost use Rattle.clap.specs.Simple.{is_simple};
ghost use Rattle.std.specs.Prelude.{◌≡◌, IsTrue, List, None, Some};
ghost use Rattle.tool_words.specs.Asked.{BatchesAreAskedFor, EdgesAreAskedFor, explain_options, format_options, query_options, test_options};
ghost use Rattle.tool_words.specs.Commands.{app};
ghost use Rattle.tool_words.specs.Said.{Item, Text, said};
ghost use Rattle.tool_words.specs.Says.{AreNames, IsOnce, Says};

/// A law, with nothing to run: a command of the program is simple to `clap`, whatever options it has.
pub fn commands_are_simple()
    ensures { (name : Text) (options : List Text) → IsTrue (is_simple (app name options)) }
{}

/// A law, with nothing to run: where options have names, words say some items exactly where they spell them by the
/// rules and give no option twice. The options of the program have names.
pub fn words_say_what_they_spell()
    ensures spelled { (names words : List Text) (items : List Item) → said names words ≡ Some items → Says names words items }
    ensures once { (names words : List Text) (items : List Item) → said names words ≡ Some items → IsOnce items }
    ensures said { (names words : List Text) (items : List Item) → AreNames names → Says names words items → IsOnce items → said names words ≡ Some items }
    ensures test { AreNames test_options }
    ensures query { AreNames query_options }
    ensures format { AreNames format_options }
    ensures explain { AreNames explain_options }
{}

/// A law, with nothing to run: windows are closed on the left, or open, exactly where the options ask for it.
pub fn edges_are_asked_for()
    ensures { EdgesAreAskedFor }
{}

/// A law, with nothing to run: batches have so many instants exactly where the options ask for it.
pub fn batches_are_asked_for()
    ensures { BatchesAreAskedFor }
{}
