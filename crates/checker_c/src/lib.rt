// The checker's three functions for an editor written in C, under the names of include/maceplateau.h: each passes its bytes on.
#![tactic(auto)]

ghost use Rattle.std.specs.Prelude.{◌≡◌};
ghost use Rattle.claims.specs.Files.{target_files, question_files};
ghost use Rattle.claims.specs.ReachReply.{reach_reply};
ghost use Rattle.claims.specs.AskReply.{ask_reply};
ghost use Rattle.claims.specs.Editor.{reach_code, ask_code, ReachCodeMeans, AskCodeMeans};
ghost use Rattle.claims.specs.declared.Notation.TheVariants.{Rows, Text};

// Table and target: 1 reached, 0 never, or 100 plus the refusal's number.
#[unsafe(no_mangle)]
pub extern "C" fn maceplateau_reach(table: &[u8], target: &[u8]) -> u32
    ensures { (result ≡ reach_code (reach_reply (target_files table.now target.now)))
        × ReachCodeMeans table.now target.now result }
{
    checker::maceplateau_reach(table, target)
}

// Table and question, a file of rows: 1 yes, 0 no, or 100 plus the refusal's number.
#[unsafe(no_mangle)]
pub extern "C" fn maceplateau_ask(table: &[u8], question: &[u8]) -> u32
    ensures { (result ≡ ask_code (ask_reply (question_files Rows table.now question.now)))
        × AskCodeMeans Rows table.now question.now result }
{
    checker::maceplateau_ask(table, question)
}

// The same for a question that is a line of text.
#[unsafe(no_mangle)]
pub extern "C" fn maceplateau_ask_text(table: &[u8], text: &[u8]) -> u32
    ensures { (result ≡ ask_code (ask_reply (question_files Text table.now text.now)))
        × AskCodeMeans Text table.now text.now result }
{
    checker::maceplateau_ask_text(table, text)
}
