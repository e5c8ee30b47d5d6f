// What ties accounts and numbers, each as the promise of a function.
ghost use Rattle.numbers.specs.Claims.{AccountOfItsNumbers, NumbersOfTheirAccount};

// Every account is the account of its numbers.
pub fn account_of_its_numbers()
    ensures { AccountOfItsNumbers }
{}

// Numbers that stand for an account are that account's.
pub fn numbers_of_their_account()
    ensures { NumbersOfTheirAccount }
{}
