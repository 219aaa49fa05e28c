// The results of the builder's methods, as replies.
ghost use Rattle.std.specs.Prelude.{◌≡◌, MatchResult};
ghost use Rattle.book.specs.declared.reply.Reply.TheVariants.{Refused};

use book::reply::Reply;
use kinds::refusal::Refusal;

// The reply that tells what a method gave, or why it was refused.
pub fn told<A, F: FnOnce(A) -> Reply>(answer: Result<A, Refusal>, given: F) -> Reply
    requires { F.IsAlwaysCallable given }
    ensures { MatchResult answer (λ x. F.post given x result) (λ r. result ≡ Refused r) }
{
    answer.map_or_else(Reply::Refused, given)
}
