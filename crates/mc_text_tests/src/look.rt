/// Looks at a value, and drops it. The test that calls it holds no value of its own, whose parts would all be told to
/// each proof of the test. A function that is given the context costs less than a closure that captures it.
pub fn look_at<C: Drop, T: Drop, R, F: FnOnce(C, &mut T) -> R>(
    context: C,
    mut value: T,
    look: F,
) -> R
    requires { F.IsAlwaysCallable look }
{
    look(context, &mut value)
}

/// The same where the value may not have been made.
pub fn look_at_made<C: Drop, T: Drop, E, R, F: FnOnce(C, &mut T) -> R>(
    context: C,
    made: Result<T, E>,
    look: F,
) -> Result<R, E>
    requires { F.IsAlwaysCallable look }
{
    match made {
        Ok(value) => Ok(look_at(context, value, look)),
        Err(fault) => Err(fault),
    }
}
