// The lines of `validate`'s answer.
#![tactic(auto)]

ghost use Rattle.show.specs.Writing.{Written};
ghost use Rattle.print_validate.specs.Answer.{validate_lines};

use model_validate::Validity;

pub fn put_answer(out: &mut [u8], n: usize, file: &[u8]) -> usize
    ensures { Written (validate_lines file.now) out.old n out.new result }
{
    let v = model_validate::validate(file);
    match v {
        Validity::Accepted => show::put_accepted(out, n),
        Validity::Refused(number) => show::put_refused(out, n, number),
    }
}
